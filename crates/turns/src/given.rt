// The sets of orders that events give to an access's timers, by name.
ghost use Rattle.std.specs.Prelude.{◌≡◌};
ghost use Rattle.turns.specs.Timers as timers;

use crate::{Order, Orders};

// Kept: no plainer, each set has its name in specs/Timers.antt, and says only what it orders.
pub(crate) fn quiet() -> Orders
    ensures { result ≡ timers.quiet }
{
    Orders {
        t3510: Order::Leave,
        t3511: Order::Leave,
        t3502: Order::Leave,
        t3346: Order::Leave,
    }
}

pub(crate) fn starting() -> Orders
    ensures { result ≡ timers.starting }
{
    Orders {
        t3510: Order::Run(15),
        t3511: Order::Stop,
        t3502: Order::Stop,
        ..quiet()
    }
}

pub(crate) fn answered() -> Orders
    ensures { result ≡ timers.answered }
{
    Orders {
        t3510: Order::Stop,
        ..quiet()
    }
}

pub(crate) fn waiting(length: u32) -> Orders
    ensures { result ≡ timers.waiting length }
{
    Orders {
        t3346: Order::Run(length),
        ..answered()
    }
}

pub(crate) fn retrying() -> Orders
    ensures { result ≡ timers.retrying }
{
    Orders {
        t3511: Order::Run(10),
        ..answered()
    }
}

pub(crate) fn resting(length: u32) -> Orders
    ensures { result ≡ timers.resting length }
{
    Orders {
        t3502: Order::Run(length),
        ..answered()
    }
}

pub(crate) fn t3511_stops() -> Orders
    ensures { result ≡ timers.t3511_stops }
{
    Orders {
        t3511: Order::Stop,
        ..quiet()
    }
}

pub(crate) fn t3502_stops() -> Orders
    ensures { result ≡ timers.t3502_stops }
{
    Orders {
        t3502: Order::Stop,
        ..quiet()
    }
}

pub(crate) fn t3346_stops() -> Orders
    ensures { result ≡ timers.t3346_stops }
{
    Orders {
        t3346: Order::Stop,
        ..quiet()
    }
}

pub(crate) fn halted() -> Orders
    ensures { result ≡ timers.halted }
{
    Orders {
        t3510: Order::Stop,
        t3511: Order::Stop,
        t3502: Order::Stop,
        t3346: Order::Stop,
    }
}
