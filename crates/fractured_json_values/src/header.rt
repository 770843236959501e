// Rules 31 to 34, which the check and every question apply first.
ghost use Rattle.std.specs.Prelude.{◌≡◌};
ghost use Rattle.json_model.specs.Reading.{ask, told};
ghost use Rattle.fractured_json_rules.specs.Verdict.{header};

use json_model::limits::{LEAST_FRACTURED, LONGEST};
use json_model::{Verdict, refuse};

#[tactic(auto, using(crate::proofs::Headers::header_laws))]
pub fn read_header(doc: &[u8]) -> Verdict
    ensures { told result ≡ ask (header doc.now) }
{
    let len = doc.len();
    if len < LEAST_FRACTURED {
        return refuse(31, len);
    }
    if LONGEST < len {
        return refuse(32, len);
    }
    if !doc.starts_with(b"FJ") {
        return refuse(33, 0);
    }
    if doc[2] != 1 {
        return refuse(34, 2);
    }
    Ok(())
}
