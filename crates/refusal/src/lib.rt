// Why a call is turned away, and the number that the papers give for it.
#![tactic(auto)]

ghost use Rattle.std.specs.Prelude.{◌≡◌, ◌≤◌};
ghost use Rattle.refusal.specs.Number.{number};

// Each refusal by its word. 0 to 11 are those of 01's table; the others are of its change requests: 12 of a stretch, 13 and 14 of
// degrees, 15 to 17 of the user flash, 18 of the quietest run, 19 of set-up frames, 20 and 21 of a listing.
#[derive(Clone, Copy, PartialEq, Eq)]
pub enum Refusal {
    NotSound,
    NoFrame,
    Opcode,
    FrameLength,
    Address,
    ShortOutput,
    Busy,
    Calendar,
    NotInitialised,
    SetUp,
    NotAwaited,
    WordCount,
    Span,
    OffTable,
    BadTable,
    SupplyOff,
    FlashAddress,
    NotErased,
    Width,
    ShortBuffer,
    LastCapture,
    ShortListing,
}

impl Refusal {
    // The number, 0 to 21.
    pub fn number(self) -> u32
        ensures { (result ≡ number self) × (result ≤ 21) }
    {
        self as u32
    }
}
