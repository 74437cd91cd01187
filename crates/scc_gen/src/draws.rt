// The numbers that are drawn.
ghost use Rattle.std.specs.Prelude.{◌≡◌, ◌≤◌, ◌<◌, ◌%◌};
ghost use Rattle.scc_gen.specs.Generated.{behind};

// The last number drawn, or the seed.
#[derive(Clone, Copy)]
pub struct Draws {
    pub last: u32,
}

impl Draws {
    // Draws a number below a bound.
    pub fn below(&mut self, bound: u32) -> u32
        requires room { self.old.last ≤ 65536 }
        requires some { 0 < bound }
        ensures next { self.new.last ≡ behind self.old.last }
        ensures drawn { result ≡ self.new.last % bound }
        ensures room { self.new.last ≤ 65536 }
    {
        self.last = (75 * self.last + 74) % 65537;
        self.last % bound
    }
}
