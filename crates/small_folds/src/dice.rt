//! Numbers that look random, always the same.

/// Dice, of which each throw gives the next number.
#[derive(Drop)]
pub struct Dice {
    state: u64,
}

impl Dice {
    /// The dice of this number, after a few throws.
    pub fn of(number: u64) -> Dice {
        let mut dice = Dice { state: number };
        for _ in 0..3u8 {
            dice.shows(2);
        }
        dice
    }

    /// Whether a die with so many sides shows its first.
    pub fn shows(&mut self, sides: u64) -> bool {
        self.state = (self.state % 2_147_483_648 * 1_103_515_245 + 12_345) % 2_147_483_648;
        self.state / 65_536 % sides.max(1) == 0
    }
}
