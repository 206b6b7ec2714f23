//! Why an answer is rejected, in words.
ghost use Rattle.std.specs.Prelude.{◌≡◌, drop, map};
ghost use Rattle.scasp_answers_terms.specs.Tokens.Readers.{alone, any_of};
ghost use Rattle.scasp_answers_terms.specs.Tokens.Reasons as spec;
ghost use Rattle.scasp_answers_terms.specs.Tokens.View.{Reads};

use scasp_answers_terms::{Cursor, Stop};

/// Takes a reason, of those from the sixteenth on.
fn fourth(cursor: &mut Cursor<'_>) -> Result<&'static str, Stop>
    ensures { Reads (λ r. r.now) (any_of (map (λ r. alone r r) (drop 15 spec.reasons)) cursor.old) result cursor.new }
{
    if cursor.skips(b"hint not reached") {
        return Ok("hint not reached");
    }
    if cursor.skips(b"clash") {
        return Ok("clash");
    }
    if cursor.skips(b"sample") {
        return Ok("sample");
    }
    if cursor.skips(b"wrong check") {
        return Ok("wrong check");
    }
    if cursor.skips(b"wrong map") {
        return Ok("wrong map");
    }
    Err(Stop::NoForm)
}

/// Takes a reason, of those from the eleventh on.
fn third(cursor: &mut Cursor<'_>) -> Result<&'static str, Stop>
    ensures { Reads (λ r. r.now) (any_of (map (λ r. alone r r) (drop 10 spec.reasons)) cursor.old) result cursor.new }
{
    if cursor.skips(b"no ancestor") {
        return Ok("no ancestor");
    }
    if cursor.skips(b"loop without negation") {
        return Ok("loop without negation");
    }
    if cursor.skips(b"not in scope") {
        return Ok("not in scope");
    }
    if cursor.skips(b"hint step") {
        return Ok("hint step");
    }
    if cursor.skips(b"hint overflow") {
        return Ok("hint overflow");
    }
    fourth(cursor)
}

/// Takes a reason, of those from the sixth on.
fn second(cursor: &mut Cursor<'_>) -> Result<&'static str, Stop>
    ensures { Reads (λ r. r.now) (any_of (map (λ r. alone r r) (drop 5 spec.reasons)) cursor.old) result cursor.new }
{
    if cursor.skips(b"wrong instance") {
        return Ok("wrong instance");
    }
    if cursor.skips(b"wrong children") {
        return Ok("wrong children");
    }
    if cursor.skips(b"uncovered case") {
        return Ok("uncovered case");
    }
    if cursor.skips(b"wrong item") {
        return Ok("wrong item");
    }
    if cursor.skips(b"wrong split") {
        return Ok("wrong split");
    }
    third(cursor)
}

/// Takes a reason.
pub fn reason(cursor: &mut Cursor<'_>) -> Result<&'static str, Stop>
    ensures { Reads (λ r. r.now) (spec.reason_at cursor.old) result cursor.new }
{
    if cursor.skips(b"wrong query") {
        return Ok("wrong query");
    }
    if cursor.skips(b"wrong variable") {
        return Ok("wrong variable");
    }
    if cursor.skips(b"wrong node") {
        return Ok("wrong node");
    }
    if cursor.skips(b"wrong literal") {
        return Ok("wrong literal");
    }
    if cursor.skips(b"wrong rule") {
        return Ok("wrong rule");
    }
    second(cursor)
}
