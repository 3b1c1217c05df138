ghost use Rattle.std.specs.Prelude.{◌≡◌, [], ◌∷◌, ◌++◌, map, IfOk, OnOk};
ghost use Rattle.request_rules.specs.Asked.{asked_sub, ways_of, wishes_from};
ghost use Rattle.ready_objects.specs.Ready.{kind_selectors};
ghost use Rattle.request_rules.specs.Ways.{asked_exactly, ways_from, ways_in, wishes_in};
ghost use Rattle.request_rows.specs.Requests.{is_exactly, requests_from};

use crate::wants::WantedClaim;
use api_claim::{DeviceAsk, DeviceRequest, DeviceSubRequest, ExactDeviceRequest, RequestKind};
use device_selector::DeviceSelector;
use dra_values::{Seq, Text};
use object_fields::Key;
use std::alloc::{AllocError, Global};
use std::marker::Model;

/// A request of a claim.
#[derive(Drop)]
pub struct Wish<'a> {
    /// The index of its claim.
    pub claim: usize,
    pub key: &'a Key,
    pub request: &'a DeviceRequest,
    /// The compiled selectors of the ways to meet it.
    pub own: &'a [Seq<DeviceSelector>],
}

impl<'a> Model for Wish<'a> {
    ghost use Rattle.std.specs.Prelude.{◌≡◌};
    ghost use Rattle.request_rules.specs.Asked as rules;
    ghost use Rattle.ready_objects.specs.Ready.{kind_selectors};

    ghost Value = { rules.Wish };

    ghost view = { λ q. record { claim = q.claim; key = q.key.now; request = q.request.now } };

    ghost invariant = { λ q. q.own.now ≡ kind_selectors q.request.now.kind };
}

/// One way to meet a request: `exactly`, or a subrequest.
#[derive(Drop)]
pub struct Way<'a> {
    /// The index of its claim.
    pub claim: usize,
    pub key: &'a Key,
    pub request: &'a Text,
    /// The name of the subrequest.
    pub sub: Option<&'a Text>,
    pub admin: bool,
    pub ask: &'a DeviceAsk,
    /// The compiled selectors of `ask`.
    pub own: &'a [DeviceSelector],
}

impl<'a> Model for Way<'a> {
    ghost use Rattle.std.specs.Prelude.{option_copied, ◌≡◌};
    ghost use Rattle.request_rules.specs.Asked.{Asked};

    ghost Value = { Asked };

    ghost view = { λ w. record {
      label = record { claim = w.claim; request = w.request.now; sub = option_copied w.sub; admin = w.admin };
      key = w.key.now;
      ask = w.ask.now;
    } };

    ghost invariant = { λ w. w.own.now ≡ w.ask.now.selectors };
}

/// Where the rows of a request are.
#[derive(Clone, Copy)]
pub struct RequestRows {
    pub first: usize,
    /// How many ways there are to meet it.
    pub ways: usize,
    /// Whether it has `exactly`, and so one way for every choice.
    pub exact: bool,
}

/// All requests of all claims, in order.
pub fn wishes_of<'a>(
    alloc: Global,
    claims: &'a [WantedClaim<'a>],
) -> Result<Vec<Wish<'a>>, AllocError>
    ensures { IfOk result (λ v. v.items ≡ wishes_from 0 claims.now) }
{
    let mut wishes = Vec::new(alloc);
    for place in 0..claims.len() {
        add_wishes(&mut wishes, place, &claims[place])?;
    }
    Ok(wishes)
}

fn add_wishes<'a>(
    wishes: &mut Vec<Wish<'a>>,
    claim: usize,
    wanted: &'a WantedClaim<'a>,
) -> Result<(), AllocError>
    ensures { OnOk result (wishes.new.items ≡ wishes.old.items ++ wishes_in claim wanted.now.key wanted.now.requests) }
{
    let key = wanted.key;
    let ready = wanted.claim;
    let selectors = ready.selectors();
    let requests = ready.claim().requests.as_slice();
    for at in 0..requests.len() {
        let request = &requests[at];
        let own = selectors[at].as_slice();
        wishes.push(Wish {
            claim,
            key,
            request,
            own,
        })?;
    }
    Ok(())
}

/// The ways to meet the requests, in order: a row for each.
pub fn ways_of<'a>(alloc: Global, wishes: &[Wish<'a>]) -> Result<Vec<Way<'a>>, AllocError>
    ensures { IfOk result (λ v. v.items ≡ ways_from wishes.now) }
{
    let mut ways = Vec::new(alloc);
    for wish in wishes {
        add_ways(&mut ways, wish)?;
    }
    Ok(ways)
}

fn add_ways<'a>(ways: &mut Vec<Way<'a>>, wish: &Wish<'a>) -> Result<(), AllocError>
    ensures { OnOk result (ways.new.items ≡ ways.old.items ++ ways_in wish.now) }
{
    let request = wish.request;
    match &request.kind {
        RequestKind::Exactly(exactly) => add_exactly(ways, wish, exactly),
        RequestKind::FirstAvailable(subs) => add_subrequests(ways, wish, subs.as_slice()),
    }
}

fn add_exactly<'a>(
    ways: &mut Vec<Way<'a>>,
    wish: &Wish<'a>,
    exactly: &'a ExactDeviceRequest,
) -> Result<(), AllocError>
    requires { kind_selectors wish.now.request.kind ≡ exactly.now.ask.selectors ∷ [] }
    ensures { OnOk result (ways.new.items ≡ ways.old.items ++ asked_exactly wish.now exactly.now ∷ []) }
{
    let own = wish.own;
    ways.push(Way {
        claim: wish.claim,
        key: wish.key,
        request: &wish.request.name,
        sub: None,
        admin: exactly.admin,
        ask: &exactly.ask,
        own: own[0].as_slice(),
    })?;
    Ok(())
}

fn add_subrequests<'a>(
    ways: &mut Vec<Way<'a>>,
    wish: &Wish<'a>,
    subs: &'a [DeviceSubRequest],
) -> Result<(), AllocError>
    requires { kind_selectors wish.now.request.kind ≡ map (λ s. s.ask.selectors) subs.now }
    ensures { OnOk result (ways.new.items ≡ ways.old.items ++ map (asked_sub wish.now) subs.now) }
{
    let own = wish.own;
    for at in 0..subs.len() {
        let sub = &subs[at];
        ways.push(Way {
            claim: wish.claim,
            key: wish.key,
            request: &wish.request.name,
            sub: Some(&sub.name),
            admin: false,
            ask: &sub.ask,
            own: own[at].as_slice(),
        })?;
    }
    Ok(())
}

fn way_count(kind: &RequestKind) -> usize
    ensures { result ≡ ways_of kind.now }
{
    match kind {
        RequestKind::Exactly(_) => 1,
        RequestKind::FirstAvailable(subs) => subs.as_slice().len(),
    }
}

fn is_exactly(kind: &RequestKind) -> bool
    ensures { result ≡ is_exactly kind.now }
{
    match kind {
        RequestKind::Exactly(_) => true,
        RequestKind::FirstAvailable(_) => false,
    }
}

/// How many ways there are to meet each request.
pub fn options_of<'a>(alloc: Global, wishes: &[Wish<'a>]) -> Result<Seq<usize>, AllocError>
    ensures { IfOk result (λ v. v ≡ map (λ q. ways_of q.request.kind) wishes.now) }
{
    let mut options = Seq::empty(alloc);
    for wish in wishes {
        options.push(way_count(&wish.request.kind))?;
    }
    Ok(options)
}

/// Where the rows of the requests are.
pub fn request_rows_of<'a>(
    alloc: Global,
    wishes: &[Wish<'a>],
) -> Result<Seq<RequestRows>, AllocError>
    ensures { IfOk result (λ v. v ≡ requests_from 0 wishes.now) }
{
    let mut requests = Seq::empty(alloc);
    let mut first: usize = 0;
    for wish in wishes {
        let kind = &wish.request.kind;
        let ways = way_count(kind);
        requests.push(RequestRows {
            first,
            ways,
            exact: is_exactly(kind),
        })?;
        // Memory can't hold more than 2^64 ways.
        first = first.checked_add(ways).ok_or(AllocError)?;
    }
    Ok(requests)
}
