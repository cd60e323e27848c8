// A percentage from 0 to 100.
ghost use Rattle.std.specs.Prelude.{◌≡◌, ◌<◌, ◌≤◌, Some, None};

const MOST: u8 = 100;

#[derive(Clone, Copy)]
pub struct Percent {
    pub value: u8,
    ghost in_range: { value ≤ 100 },
}

impl Percent {
    // The percentage, or none above 100.
    pub fn new(value: u8) -> Option<Percent>
        ensures { elim result [ Some percent ↦ percent.value ≡ value | None ↦ 100 < value ] }
    {
        if value > MOST {
            return None;
        }
        Some(Percent { value })
    }
}
