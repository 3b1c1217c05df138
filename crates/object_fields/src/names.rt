ghost use Rattle.std.specs.Prelude.{◌≡◌, false, true};
ghost use Rattle.object_fields.specs.Names.{is_dns_label, is_dns_name, is_dns_part, is_dns_subdomain, is_lower_or_digit, is_pool_name};
ghost use Rattle.object_fields.specs.Scan.{goes_on, is_cut, may_follow};

/// The most bytes of a DNS label.
pub const LABEL_MOST: usize = 63;

/// The most bytes of a pool's name (API reference of resource.k8s.io/v1).
pub const POOL_MOST: usize = 253;

/// Whether the text is a DNS label (RFC 1123): 1 to 63 lower-case letters, digits and `-`, neither
/// beginning nor ending with `-`. Allocates nothing.
pub fn dns_label(text: &str) -> bool
    ensures { result ≡ is_dns_label text.now }
{
    text.len() <= LABEL_MOST && dns_part(text.as_bytes())
}

/// Whether the text is a DNS subdomain of at most `most` bytes: one or more parts joined by `.`,
/// each of lower-case letters, digits and `-`, neither beginning nor ending with `-`. Allocates
/// nothing.
pub fn dns_subdomain(text: &str, most: usize) -> bool
    ensures { result ≡ is_dns_subdomain most text.now }
{
    text.len() <= most && dns_name(text)
}

/// Whether the text is a DNS subdomain of any length. Allocates nothing.
#[tactic(auto, using(crate::proofs::Scan::goes_by_points))]
pub fn dns_name(text: &str) -> bool
    ensures { result ≡ is_dns_name text.now }
{
    joined(text.as_bytes(), Cuts::Points)
}

/// Whether the text is one or more DNS subdomains joined by `/`, of any length. Allocates nothing.
#[tactic(auto, using(crate::proofs::Scan::goes_by_slashes))]
pub fn pool_name(text: &str) -> bool
    ensures { result ≡ is_pool_name text.now }
{
    joined(text.as_bytes(), Cuts::PointsAndSlashes)
}

/// Whether the bytes are a part of a DNS name.
#[tactic(auto, using(crate::proofs::Scan::goes_whole))]
fn dns_part(text: &[u8]) -> bool
    ensures { result ≡ is_dns_part text.now }
{
    joined(text, Cuts::Nowhere)
}

/// The bytes that separate the parts of a name.
#[derive(Clone, Copy)]
enum Cuts {
    Nowhere,
    Points,
    PointsAndSlashes,
}

/// Whether the bytes are parts with a separator between each two.
fn joined(text: &[u8], cuts: Cuts) -> bool
    ensures { result ≡ goes_on (is_cut cuts) 46 text.now }
{
    let mut before = b'.';
    for byte in text {
        if !follows(before, *byte, cuts) {
            return false;
        }
        before = *byte;
    }
    lower_or_digit(before)
}

/// Whether the byte may follow the one before it.
fn follows(before: u8, byte: u8, cuts: Cuts) -> bool
    ensures { result ≡ may_follow (is_cut cuts) before byte }
{
    lower_or_digit(byte)
        || (byte == b'-' && (lower_or_digit(before) || before == b'-'))
        || (cut(byte, cuts) && lower_or_digit(before))
}

fn cut(byte: u8, cuts: Cuts) -> bool
    ensures { result ≡ is_cut cuts byte }
{
    match cuts {
        Cuts::Nowhere => false,
        Cuts::Points => byte == b'.',
        Cuts::PointsAndSlashes => byte == b'.' || byte == b'/',
    }
}

fn lower_or_digit(byte: u8) -> bool
    ensures { result ≡ is_lower_or_digit byte }
{
    byte.is_ascii_lowercase() || byte.is_ascii_digit()
}
