//! How long a thread looks for its turn before it sleeps.
ghost use Rattle.std.specs.Prelude.{◌≡◌};
ghost use Rattle.lc_lock.specs.Patience.{pause, spins, yields};

// How often a thread spins first: that whose ticket is served next, and any other.
const SPINS_OF_THE_NEXT: u32 = 32;

const SPINS: u32 = 8;

// How often it then lets others run: one that is near its turn, and any other.
const YIELDS_OF_THE_NEAR: u32 = 16;

const YIELDS: u32 = 2;

// Before whose ticket no more than so many are served is near its turn.
const NEAR: u32 = 2;

// What a thread does between two looks.
pub(crate) enum Pause {
    // It gives the processor a hint that it waits.
    Spin,
    // It lets other threads run.
    Yield,
    // It sleeps until a bell rings.
    Sleep,
}

// How often a thread spins before whose ticket so many are served.
fn spins_at(ahead: u32) -> u32
    ensures { result ≡ spins ahead }
{
    if ahead == 1 { SPINS_OF_THE_NEXT } else { SPINS }
}

// How often it then lets others run.
fn yields_at(ahead: u32) -> u32
    ensures { result ≡ yields ahead }
{
    if ahead > NEAR {
        YIELDS
    } else {
        YIELDS_OF_THE_NEAR
    }
}

// What a thread does after so many looks, before whose ticket so many are served.
pub(crate) fn pause_after(looks: u32, ahead: u32) -> Pause
    ensures { result ≡ pause looks ahead }
{
    let spins = spins_at(ahead);
    if looks < spins {
        Pause::Spin
    } else if looks - spins < yields_at(ahead) {
        Pause::Yield
    } else {
        Pause::Sleep
    }
}
