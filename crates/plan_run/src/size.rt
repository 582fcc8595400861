//! How large a run is.

ghost use Rattle.std.specs.Prelude.{◌≡◌, ◌+◌, ◌*◌, ◌^◌, ◌≤◌, nat_lt, All, IfOk, length, sum_by};
ghost use Rattle.std.specs.List.{enumerate_from};
ghost use Rattle.irt_base.specs.Valid.{IsBundle};
ghost use Rattle.irt_base.specs.declared.limits.TheConstants.{MAX_CYCLES, MAX_DEMANDS, MAX_DEVICES, MAX_TRAFFIC};
ghost use Rattle.irt_route.specs.Routes.{IsRoutesOf};
ghost use Rattle.irt_base.specs.declared.plants.Plant.{Plant};
ghost use Rattle.iso_rules.specs.Station.{words_in, consumed_of, provided_of};
ghost use Rattle.plan_rules.specs.Plan.{IsPlan};
ghost use Rattle.plan_run.specs.Size.{app_words, both_words, bundle_rows, entry_parcels, entry_rows, is_too_long, numbers_a_cycle, rows_a_cycle, words_a_cycle};

use irt_base::blocks::{Bundle, Entry};
use irt_base::limits::{MAX_ROWS, MAX_RUN_WORDS, MAX_WORLD_NUMBERS, WORD_BYTES};
use irt_base::memory::NoMemory;
use irt_base::plants::{App, Plant, Traffic};
use irt_route::tables::Routes;
use irt_world::forwardings::Forwardings;
use plan_check::accepted::Accepted;
use std::alloc::Global;

/// Whether a run of so many cycles is too long: its journal may have more than `MAX_ROWS` rows, its record more than
/// `MAX_RUN_WORDS` words, or its world more than `MAX_WORLD_NUMBERS` numbers.
///
/// # Errors
/// `NoMemory` where memory runs out.
pub fn is_too_long(
    alloc: Global,
    accepted: &Accepted,
    routes: &Routes,
    cycles: u32,
) -> Result<bool, NoMemory>
    requires routes { IsRoutesOf accepted.now.plant routes.now }
    requires cycles { cycles ≤ MAX_CYCLES }
    ensures { IfOk result (λ long. long ≡ is_too_long accepted.now.plant accepted.now.bundles routes.now.walks cycles) }
{
    accepted.facts();
    let plant = accepted.plant();
    let bundles = accepted.bundles();
    let rows = rows_a_cycle(plant, bundles, routes);
    let words = words_a_cycle(plant, bundles);
    let numbers = numbers_a_cycle(alloc, plant, bundles)?;
    Ok(
        exceeds(cycles, rows, MAX_ROWS)
            || exceeds(cycles, words, MAX_RUN_WORDS)
            || exceeds(cycles, numbers, MAX_WORLD_NUMBERS),
    )
}

/// Whether so many cycles of a size exceed a limit.
fn exceeds(cycles: u32, size: u128, limit: u64) -> bool
    requires cycles { cycles ≤ MAX_CYCLES }
    requires size { size ≤ 2 ^ 100 }
    ensures { result ≡ nat_lt limit (cycles * size) }
{
    u128::from(limit) < u128::from(cycles) * size
}

// ---- rows of the journal

/// The rows of a cycle.
fn rows_a_cycle(plant: &Plant, bundles: &[Bundle], routes: &Routes) -> u128
    requires plan { IsPlan plant.now bundles.now }
    ensures value { result ≡ rows_a_cycle plant.now bundles.now routes.now.walks }
    ensures small { result ≤ 2 ^ 100 }
{
    frame_rows(bundles) + parcel_rows(plant.traffic.as_slice(), routes)
}

fn frame_rows(bundles: &[Bundle]) -> u128
    requires blocks { All IsBundle bundles.now }
    requires count { length bundles.now ≤ MAX_DEVICES }
    ensures value { result ≡ sum_by bundle_rows bundles.now }
    ensures small { result ≤ 2 ^ 32 }
{
    let mut rows = 0;
    for bundle in bundles {
        rows += u128::from(bundle_rows(bundle.frames.entries.as_slice()));
    }
    rows
}

fn bundle_rows(entries: &[Entry]) -> u32
    requires { length entries.now ≤ MAX_DEMANDS }
    ensures value { result ≡ sum_by entry_rows entries.now }
    ensures small { result ≤ 2 ^ 17 }
{
    let mut rows = 0;
    for entry in entries {
        rows += entry_rows(*entry);
    }
    rows
}

fn entry_rows(entry: Entry) -> u32
    ensures value { result ≡ entry_rows entry }
    ensures small { result ≤ 256 }
{
    1 + entry.tx.count_ones()
}

/// The rows of the parcels that are made in a cycle.
fn parcel_rows(traffic: &[Traffic], routes: &Routes) -> u128
    requires { length traffic.now ≤ MAX_TRAFFIC }
    ensures value { result ≡ sum_by (entry_parcels routes.now.walks) (enumerate_from 0 traffic.now) }
    ensures small { result ≤ 2 ^ 99 }
{
    let mut rows = 0;
    for number in 0..traffic.len() {
        rows += traffic_rows(traffic[number], routes, number as u16);
    }
    rows
}

fn traffic_rows(entry: Traffic, routes: &Routes, number: u16) -> u128
    ensures value { result ≡ entry_parcels routes.now.walks (number, entry) }
    ensures small { result ≤ 2 ^ 80 }
{
    u128::from(entry.count) * (routes.walk(number).len() as u128 + 1)
}

// ---- words of the record

/// The words of a cycle.
fn words_a_cycle(plant: &Plant, bundles: &[Bundle]) -> u128
    requires plan { IsPlan plant.now bundles.now }
    ensures value { result ≡ words_a_cycle plant.now bundles.now }
    ensures small { result ≤ 2 ^ 100 }
{
    let mut words = 0;
    for app in plant.apps.as_slice() {
        words += u128::from(app_words(bundles, *app));
    }
    words
}

fn app_words(bundles: &[Bundle], app: App) -> u32
    requires { All IsBundle bundles.now }
    ensures value { (plant : Plant) → result ≡ app_words plant bundles.now app }
    ensures small { result ≤ 2 ^ 26 }
{
    match bundles.get(usize::from(app.device.0)) {
        None => 0,
        Some(bundle) => 2 * entry_words(bundle.frames.entries.as_slice()),
    }
}

/// The words that a device consumes and provides by its entries.
fn entry_words(entries: &[Entry]) -> u32
    requires { length entries.now ≤ MAX_DEMANDS }
    ensures value { result ≡ words_in (consumed_of entries.now) + words_in (provided_of entries.now) }
    ensures small { result ≤ 2 ^ 25 }
{
    let mut words = 0;
    for entry in entries {
        words += words_of(*entry);
    }
    words
}

/// The words of an entry where the device keeps its frame, and once more where it provides it.
fn words_of(entry: Entry) -> u32
    ensures value { result ≡ both_words entry }
    ensures small { result ≤ 2 ^ 14 }
{
    let words = u32::from(entry.data_length) / WORD_BYTES as u32;
    let consumed = if entry.tx % 2 == 1 { words } else { 0 };
    let provided = if entry.rx_port == 0 { words } else { 0 };
    consumed + provided
}

// ---- numbers of the world

/// The numbers of a row.
fn numbers_a_cycle(alloc: Global, plant: &Plant, bundles: &[Bundle]) -> Result<u128, NoMemory>
    requires plan { IsPlan plant.now bundles.now }
    ensures value { IfOk result (λ n. n ≡ numbers_a_cycle plant.now bundles.now) }
    ensures small { IfOk result (λ n. n ≤ 2 ^ 100) }
{
    let forwardings = Forwardings::new(alloc, plant, bundles)?;
    Ok(plant.devices.len() as u128 + forwardings.len() as u128)
}
