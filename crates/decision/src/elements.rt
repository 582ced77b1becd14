// The elements of a list: whether they are of types that are judged, and which digests they name.
ghost use Rattle.std.specs.Prelude.{◌≡◌, List, ◌<◌, ◌^◌, drop, Some};
ghost use Rattle.field.specs.Field.{same};
ghost use Rattle.policy_grammar.specs.Grammar.{Element};
ghost use Rattle.policy_answers.specs.Seen.{pieces, seen_digests, seen_element};
ghost use Rattle.decision.specs.Lists as spec;
ghost use Rattle.rules.specs.Tests.{any};
ghost use Rattle.decision.specs.Lists.{digests_name, names_stm};
ghost use Rattle.decision.specs.Answers.{criteria_of};
ghost use Rattle.decision.specs.Inner.{judged_body, is_stm_body, test_seen, judgement_by, judgement_of, Counted, ElementsStand};

use crate::{Judgement, LaunchCriteria};
use policy_answers::{ElementAt, ElementBody, LAUNCH_DIGESTS, STM_DIGESTS};
use policy_record::SHA256_ALG;

const DIGEST_SIZE: usize = 32;

// Whether the digest is one of those that stand in the body b from `start` on.
fn named(b: &[u8], start: usize, count: usize, digest: &[u8; 32]) -> bool
    requires { (start < 2 ^ 16) × (count < 2 ^ 16) }
    ensures { result ≡ any (same digest.now) (pieces count 32 (drop start b.now)) }
{
    for k in 0..count {
        if field::marked(b, start + DIGEST_SIZE * k, digest) {
            return true;
        }
    }
    false
}

// Whether the digests of an algorithm, which stand in the body b from `start` on, name a digest of SHA-256.
fn digests_name(b: &[u8], start: usize, hash_alg: usize, count: usize, digest: &[u8; 32]) -> bool
    requires { (start < 2 ^ 16) × (count < 2 ^ 16) }
    ensures { result ≡ digests_name digest.now (seen_digests hash_alg count (drop start b.now)) }
{
    if hash_alg as u64 != SHA256_ALG {
        return false;
    }
    named(b, start, count, digest)
}

// Whether an element of t names the digest of the pages. Its body is passed on as the part of t that it is.
fn names(t: &[u8], e: ElementAt, k: &LaunchCriteria) -> bool
    requires { Counted e.body }
    ensures { result ≡ test_seen (spec.names (criteria_of k.now)) (seen_element t.now (Some e)) }
{
    let ElementBody::Launch {
        sinit_min_version,
        hash_alg,
        count,
        ..
    } = e.body
    else {
        return false;
    };
    if k.acm_version < sinit_min_version as u64 {
        return false;
    }
    let b = policy_answers::body(t, Some(e));
    digests_name(b, LAUNCH_DIGESTS, hash_alg, count, &k.digest)
}

// Whether an element of t is an STM element that names a digest.
fn names_stm(t: &[u8], e: ElementAt, digest: &[u8; 32]) -> bool
    requires { Counted e.body }
    ensures { result ≡ test_seen (names_stm digest.now) (seen_element t.now (Some e)) }
{
    let ElementBody::Stm { hash_alg, count } = e.body else {
        return false;
    };
    let b = policy_answers::body(t, Some(e));
    digests_name(b, STM_DIGESTS, hash_alg, count, digest)
}

// Whether an element is of a type that is judged.
fn judged(e: ElementAt) -> bool
    ensures { result ≡ judged_body e.body }
{
    !matches!(e.body, ElementBody::Unjudged { .. })
}

// Whether an element is an STM element.
fn is_stm(e: ElementAt) -> bool
    ensures { result ≡ is_stm_body e.body }
{
    matches!(e.body, ElementBody::Stm { .. })
}

// What elements say that are all judged, by whether one names the digest of the pages and whether one is an STM element.
fn judgement(named: bool, holds_stm: bool) -> Judgement
    ensures { result ≡ judgement_by named holds_stm }
{
    if !named {
        return Judgement::No;
    }
    if holds_stm {
        return Judgement::IfStmNamed;
    }
    Judgement::Yes
}

// Elements are walked by `while`, since each step is the element's own size, and an iterator of elements would hide from the loop's invariant where
// the next one stands. That elements stand from `start` on is asked of each of the three functions that walk or pass them on: it names a reading of the
// grammar, which no value of the code holds.
//
// What the elements of t from `start` on say: all are of types that are judged, one of them names the digest of the pages, and whether one is an STM
// element.
pub(crate) fn elements_judged(t: &[u8], start: usize, k: &LaunchCriteria) -> Judgement
    requires { (es : List Element) × ElementsStand t.now start es }
    ensures { (es : List Element) → ElementsStand t.now start es → result ≡ judgement_of (criteria_of k.now) es }
{
    let mut at = start;
    let mut named = false;
    let mut holds_stm = false;
    while at < t.len() {
        let Some(e) = policy_reader::element_at(t, at) else {
            return Judgement::No;
        };
        if !judged(e) {
            return Judgement::No;
        }
        named |= names(t, e, k);
        holds_stm |= is_stm(e);
        at += e.size;
    }
    judgement(named, holds_stm)
}

// Whether one of the elements of t from `start` on is an STM element that names a digest.
pub(crate) fn stm_named(t: &[u8], start: usize, digest: &[u8; 32]) -> bool
    requires { (es : List Element) × ElementsStand t.now start es }
    ensures { (es : List Element) → ElementsStand t.now start es → result ≡ any (names_stm digest.now) es }
{
    let mut at = start;
    while at < t.len() {
        let Some(e) = policy_reader::element_at(t, at) else {
            return false;
        };
        if names_stm(t, e, digest) {
            return true;
        }
        at += e.size;
    }
    false
}
