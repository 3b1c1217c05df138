use crate::fields::printed;
use crate::input::{CaseError, number_at, text_at};
use crate::shown::Out;
use api_slice::DriverName;
use dra_values::Text;
use object_fields::{Path, QualName, dns_label, dns_subdomain, label_of, pool_name};
use semver::Version;
use serde_json::Value;
use std::alloc::{AllocError, Global};

pub fn answer(alloc: Global, out: &mut Out, word: &str, input: &Value) -> Result<(), CaseError> {
    match input.as_str() {
        Some(text) => of_text(alloc, out, word, text),
        None => of_list(alloc, out, word, input),
    }
}

fn of_text(alloc: Global, out: &mut Out, word: &str, text: &str) -> Result<(), CaseError> {
    match word {
        "label" => out.show(&dns_label(text)),
        "pool" => out.show(&pool_name(text)),
        "driver" => return driver(alloc, out, text),
        "label_of" => return label_at_seven(alloc, out, text),
        "version" => version(alloc, out, text),
        _ => return Err(CaseError::BadCase),
    }
    Ok(())
}

fn of_list(alloc: Global, out: &mut Out, word: &str, input: &Value) -> Result<(), CaseError> {
    match word {
        "subdomain" => subdomain(out, input),
        "qualified" => qualified(alloc, out, input),
        "all" => all(alloc, out, input),
        "steps" => steps(alloc, out),
        _ => Err(CaseError::BadCase),
    }
}

fn subdomain(out: &mut Out, input: &Value) -> Result<(), CaseError> {
    let most = number_at(input, 0)?;
    let text = text_at(input, 1)?;
    match usize::try_from(most) {
        Ok(most) => out.show(&dns_subdomain(text, most)),
        Err(_) => return Err(CaseError::BadCase),
    }
    Ok(())
}

/// Appends a copy of the driver's name that the text is, or `none`.
fn driver(alloc: Global, out: &mut Out, text: &str) -> Result<(), CaseError> {
    match DriverName::new(Text::from_str(alloc, text)?) {
        Some(driver) => Ok(push_driver(alloc, out, &driver)?),
        None => {
            out.say("none");
            Ok(())
        }
    }
}

fn push_driver(alloc: Global, out: &mut Out, driver: &DriverName) -> Result<(), AllocError> {
    let copy = driver.copy(alloc)?;
    out.show(copy.as_text());
    Ok(())
}

/// Appends the qualified name that a text means in a slice of a driver, or the error.
fn qualified(alloc: Global, out: &mut Out, input: &Value) -> Result<(), CaseError> {
    let (driver, text) = (text_at(input, 0)?, text_at(input, 1)?);
    push_qualified(alloc, out, driver, text)
}

fn push_qualified(alloc: Global, out: &mut Out, driver: &str, text: &str) -> Result<(), CaseError> {
    match QualName::parse(alloc, text, driver) {
        Ok(name) => Ok(push_copy(alloc, out, &name)?),
        Err(error) => {
            out.show(&error);
            Ok(())
        }
    }
}

/// Appends a copy of a qualified name.
fn push_copy(alloc: Global, out: &mut Out, name: &QualName) -> Result<(), AllocError> {
    let copy = name.copy(alloc)?;
    out.show(&copy.domain);
    out.show_after("/", &copy.id);
    Ok(())
}

/// Appends whether the text is a label, a subdomain and a pool's name, and which qualified name it is.
fn all(alloc: Global, out: &mut Out, input: &Value) -> Result<(), CaseError> {
    let (driver, text) = (text_at(input, 0)?, text_at(input, 1)?);
    out.show(&dns_label(text));
    out.show_after(" ", &dns_subdomain(text, 253));
    out.show_after(" ", &pool_name(text));
    out.say(" ");
    push_qualified(alloc, out, driver, text)
}

/// Appends the text as a label at index 7 of a list.
fn label_at_seven(alloc: Global, out: &mut Out, text: &str) -> Result<(), CaseError> {
    let top = Path::top();
    let path = top.place(7);
    printed(alloc, out, label_of(alloc, &path, text))
}

/// Appends the steps of the path to index 7 of a list, one after another.
fn steps(alloc: Global, out: &mut Out) -> Result<(), CaseError> {
    let top = Path::top();
    let path = top.place(7);
    for step in path.copy(alloc)?.steps() {
        out.show(step);
    }
    Ok(())
}

/// Appends the numbers, the pre-release and the build metadata of a version of Semantic Versioning 2.0.0,
/// or `none` if the text is none.
fn version(alloc: Global, out: &mut Out, text: &str) {
    match Version::parse(alloc, text) {
        Ok(version) => push_version(out, &version),
        Err(_) => out.say("none"),
    }
}

fn push_version(out: &mut Out, version: &Version) {
    out.show(&version.major);
    out.show_after(" ", &version.minor);
    out.show_after(" ", &version.patch);
    out.say(" [");
    out.say(version.pre.as_str());
    out.say("] [");
    out.say(version.build.as_str());
    out.say("]");
}
