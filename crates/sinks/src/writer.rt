// A sink that writes each clause as a line of text into an area that is lent to it.
ghost use Rattle.std.specs.Prelude.{◌≡◌, take};
ghost use Rattle.sinks.specs.Lines.{Written};

pub mod sink;

// Holds the lines at the front of its area.
#[derive(Debug, Drop)]
pub struct Writer<'a> {
    area: &'a mut [u8],
    // how many bytes of the caller's area, and how many lines, are written
    used: usize,
    taken: usize,
    ghost written: { Written area.now used taken },
}

impl<'a> Writer<'a> {
    // The lines written, as they stand in the area.
    pub fn text(&self) -> &[u8]
        ensures { result.now ≡ take self.now.used self.now.area.now }
    {
        &self.area[0..self.used]
    }

    // Gives back the area, with the lines at its front.
    pub fn into_area(self) -> &'a mut [u8]
        ensures area { result.now ≡ self.entry.area.now }
        ensures name { result.ghost_name ≡ self.entry.area.ghost_name }
    {
        let Writer { area, .. } = self;
        area
    }
}
