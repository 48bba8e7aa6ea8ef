// A sink that judges one assignment, which an area of bytes gives.
ghost use Rattle.std.specs.Prelude.{◌≡◌, ◌+◌, ◌*◌, ◌≤◌, is_none, unwrap_or, ◌==◌};

pub mod sink;

// Variable v is true if byte v - 1 of the area is 1.
#[derive(Debug, Drop)]
pub struct Judge<'a> {
    area: &'a [u8],
    cells: usize,
    taken: usize,
    // the number of the first clause that is false
    fault: Option<usize>,
    ghost bounded: { 2 * taken + cells ≤ 16777216 },
    ghost numbered: { is_none fault ≡ (unwrap_or fault 0 == 0) },
}

impl<'a> Judge<'a> {
    // The number of the first clause taken that is false; none while the assignment is in.
    pub fn first_fault(&self) -> Option<usize>
        ensures { result ≡ self.now.fault }
    {
        self.fault
    }

    // The number of the first clause taken that is false, or 0 while the assignment is in: so it is told outside.
    pub fn first_false(&self) -> usize
        ensures number { result ≡ unwrap_or self.now.fault 0 }
        ensures none { is_none self.now.fault ≡ (result == 0) }
    {
        self.first_fault().unwrap_or(0)
    }

    // Gives back the area.
    pub fn into_area(self) -> &'a [u8]
        ensures { result.now ≡ self.entry.area.now }
    {
        let Judge { area, .. } = self;
        area
    }
}
