// Random numbers.
ghost use Rattle.std.specs.Prelude.{◌≡◌, ◌/◌, ◌<◌, ◌^◌};
ghost use Rattle.gen_program.specs.Draws as draws;

/// A linear congruential generator.
#[derive(Drop)]
pub struct Draws {
    pub state: u32,
}

impl Draws {
    #[tactic(auto, unfolding(crate::specs::Draws::start))]
    pub fn new(seed: u32) -> Draws
        ensures { result.state ≡ draws.start seed }
    {
        Draws {
            state: seed % 0x8000_0000,
        }
    }

    /// A number below 2^15.
    #[tactic(auto, unfolding(crate::specs::Draws::next))]
    pub fn draw(&mut self) -> u32
        ensures state { self.new.state ≡ draws.next self.old.state }
        ensures value { result ≡ draws.next self.old.state / 65536 }
    {
        let next = (self.state as u64 * 1_103_515_245 + 12345) % 0x8000_0000;
        self.state = next as u32;
        self.state / 65536
    }
}
