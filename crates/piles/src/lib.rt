// Piles of layers over a fresh cloud, as the command `host` makes them.
#![tactic(auto)]

ghost use Rattle.std.specs.Prelude.{◌≡◌, IfOk, string_bytes};
ghost use Rattle.std.specs.Bool.{⊤};
ghost use Rattle.universe.specs.Reading.{tables_read};
ghost use Rattle.universe.specs.Held.{universe_in};
ghost use Rattle.cloud.specs.Cloud.{cloud_of};
ghost use Rattle.console.specs.Told.{IfTold, Told};
ghost use Rattle.piles.specs.Piles.{CommandReported, ReportedFrom, command_text, fresh, fresh_cloud_of, fresh_text};

use cloud::Cloud;
use console::failure::Failure;
use console::report::read_universe;
use hosting::host_report;
use layers::verifying::Verifying;
use model::order::Order;
use options::{HostOptions, Layers};
use std::alloc::{AllocError, Global};
use table::limits::Limits;
use universe::held::Universe;

// An empty cloud of the universe, with the limits and the delay that are chosen.
pub fn fresh_cloud(universe: Universe, options: HostOptions) -> Cloud
    ensures { cloud_of result ≡ fresh_cloud_of (universe_in universe) options }
{
    let limits = Limits {
        instances: options.instances,
        bindings: options.bindings,
    };
    Cloud::open(universe, limits, options.delay)
}

// Gives a fresh pile the orders one by one, and makes the lines that tell of them and the last line.
pub fn pile_report(
    alloc: Global,
    universe: Universe,
    options: HostOptions,
    orders: &[Order],
) -> Result<String, AllocError>
    ensures exact { IfOk result (λ s. string_bytes s ≡ fresh_text (universe_in universe) options orders.now) }
    ensures reported { IfOk result (λ s. ReportedFrom orders.now (fresh (universe_in universe) options) (string_bytes s)) }
{
    let mut cloud = fresh_cloud(universe, options);
    match options.layers {
        Layers::None => host_report(alloc, &mut cloud, orders),
        Layers::Verifying => host_report(alloc, &mut Verifying::over(cloud), orders),
        Layers::VerifyingTwice => host_report(
            alloc,
            &mut Verifying::over(Verifying::over(cloud)),
            orders,
        ),
    }
}

// Reads the universe and gives a fresh pile of it the orders: their report, or that of the universe's refusal.
pub fn host_command_report(
    alloc: Global,
    file: &[u8],
    options: HostOptions,
    orders: &[Order],
) -> Result<String, Failure<String>>
    ensures exact { Told string_bytes string_bytes result (command_text orders.now options (tables_read file.now)) }
    ensures reported { IfTold result (λ s. CommandReported orders.now options (tables_read file.now) (string_bytes s)) (λ s. ⊤) }
{
    let universe = read_universe(alloc, file)?;
    Ok(pile_report(alloc, universe, options, orders)?)
}
