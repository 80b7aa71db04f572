// The kinds of records that `run_calendar` knows (tests/beside/README.md), and how long the body of each is.
ghost use Rattle.std.specs.Prelude.{◌≤◌};

use record_bodies::UnknownKind;

// Kinds 2 and 3 as in `slot`, 32 to 38 in the order written.
#[derive(Clone, Copy)]
pub enum Kind {
    Window,
    Block,
    Fits,
    Working,
    Join,
    Lay,
    End,
    Clear,
    Measure,
}

impl TryFrom<u8> for Kind {
    type Error = UnknownKind;

    fn try_from(kind: u8) -> Result<Kind, UnknownKind> {
        match kind {
            2 => Ok(Kind::Window),
            3 => Ok(Kind::Block),
            32 => Ok(Kind::Fits),
            33 => Ok(Kind::Working),
            34 => Ok(Kind::Join),
            35 => Ok(Kind::Lay),
            36 => Ok(Kind::End),
            37 => Ok(Kind::Clear),
            38 => Ok(Kind::Measure),
            _ => Err(UnknownKind),
        }
    }
}

impl Kind {
    // How many bytes the body has.
    pub fn len(self) -> usize
        ensures { result ≤ 28 }
    {
        match self {
            Kind::Window | Kind::Block | Kind::Fits | Kind::End => 16,
            Kind::Working | Kind::Lay => 8,
            Kind::Join | Kind::Clear => 0,
            Kind::Measure => 28,
        }
    }
}
