ghost use Rattle.std.specs.Prelude.{◌≡◌};
ghost use Rattle.dn_lines.specs.declared.bad.Bad.TheVariants.{Memory};

use dn_io::OutOfMemory;

/// Why a line of an input gave nothing.
#[derive(Clone, Copy)]
pub enum Bad {
    /// The line isn't valid for the command.
    Line,
    /// Memory wasn't to be had.
    Memory,
}

impl From<OutOfMemory> for Bad {
    ghost from_gives = { λ _ bad. bad ≡ Memory };

    fn from(_refused: OutOfMemory) -> Self {
        Bad::Memory
    }
}
