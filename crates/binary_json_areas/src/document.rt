// A document that keeps rules 1 to 4, with its areas, so that what stands in them can be read without further tests.
ghost use Rattle.binary_json_areas.specs.Laid.{Laid};

use crate::areas::Areas;

#[derive(Clone, Copy)]
pub struct Document<'a> {
    pub bytes: &'a [u8],
    pub areas: Areas,
    pub ghost laid: { Laid bytes.now areas },
}
