//! The parts of each app: its exchanges, the passes of both sides, and what a cycle takes from it and publishes to it.

ghost use Rattle.std.specs.Prelude.{◌≡◌, ◌+◌, ◌<◌, ◌≤◌, IfOk, Some, length, map, slice_get};
ghost use Rattle.io_buffers.specs.Passes.{table_of};
ghost use Rattle.irt_base.specs.declared.limits.TheConstants.{MAX_CYCLES};
ghost use Rattle.free_jobs.specs.Jobs.{new_job};
ghost use Rattle.free_plant.specs.Named.{app_count, cycles_of};
ghost use Rattle.free_plant.specs.Ties.{HasWidths};
ghost use Rattle.free_plant.specs.Views.{new_port};
ghost use Rattle.iso_free.specs.Begun.{AreBegun};
ghost use Rattle.iso_free.specs.Opened.{AreOpened, IsOpened};

use crate::opening::OpenedApp;
use free_jobs::firsts::Firsts;
use free_jobs::jobs::Job;
use free_plant::buffers::Buffer;
use free_plant::naming::Naming;
use free_plant::ports::Port;
use free_plant::wires::Wire;
use io_buffers::opening::Opening;
use irt_base::memory::NoMemory;
use iso_app::IsoApp;
use std::alloc::Global;

/// The parts of an app.
#[derive(Drop)]
struct AppParts<A: IsoApp, N: Naming + Firsts<A>> {
    wire: Wire<N>,
    port: Port<N>,
    buffer: Buffer,
    job: Job<A, N>,
}

/// Those of all apps, in the plant's order.
#[derive(Drop)]
pub struct Parts<A: IsoApp, N: Naming + Firsts<A>> {
    pub(crate) wires: Vec<Wire<N>>,
    pub(crate) ports: Vec<Port<N>>,
    pub(crate) buffers: Vec<Buffer>,
    pub(crate) jobs: Vec<Job<A, N>>,
}

/// The parts of all apps, under a name.
///
/// # Errors
/// `NoMemory` where memory runs out.
pub fn part_all<A: IsoApp, N: Naming + Firsts<A>>(
    alloc: Global,
    openings: Vec<OpenedApp<A>>,
) -> Result<Parts<A, N>, NoMemory>
    requires firsts { map (λ o. o.app) openings.items ≡ N.firsts }
    requires inputs { map (λ o. table_of o.input.exchange) openings.items ≡ N.inputs }
    requires outputs { map (λ o. table_of o.output.exchange) openings.items ≡ N.outputs }
    requires opened { AreOpened N.start openings.items }
    requires count { length openings.items ≡ app_count N.start }
    requires few { cycles_of N.start ≤ MAX_CYCLES }
    ensures { IfOk result (λ p. AreBegun N.start (app_count N.start) p.wires.items p.ports.items p.buffers.items
        p.jobs.items) }
{
    let mut all = Parts::with_capacity(alloc, openings.len())?;
    for opened in openings {
        let number = all.wires.len();
        all.add(parts_of(alloc, opened, number))?;
    }
    Ok(all)
}

impl<A: IsoApp, N: Naming + Firsts<A>> Parts<A, N> {
    /// Room for the parts of so many apps.
    fn with_capacity(alloc: Global, apps: usize) -> Result<Parts<A, N>, NoMemory>
        ensures begun { IfOk result (λ p. AreBegun N.start (length p.wires.items) p.wires.items p.ports.items p.buffers.items
            p.jobs.items) }
        ensures none { IfOk result (λ p. length p.wires.items ≡ 0) }
    {
        Ok(Parts {
            wires: Vec::with_capacity(alloc, apps)?,
            ports: Vec::with_capacity(alloc, apps)?,
            buffers: Vec::with_capacity(alloc, apps)?,
            jobs: Vec::with_capacity(alloc, apps)?,
        })
    }

    /// Adds the parts of the next app.
    fn add(&mut self, parts: AppParts<A, N>) -> Result<(), NoMemory>
        requires begun { AreBegun N.start (length self.old.wires.items) self.old.wires.items self.old.ports.items
            self.old.buffers.items self.old.jobs.items }
        requires wire { parts.wire ≡ length self.old.wires.items }
        requires port { parts.port ≡ new_port (length self.old.wires.items) }
        requires buffer { HasWidths N.start (length self.old.wires.items) parts.buffer }
        requires job { parts.job.number ≡ length self.old.wires.items }
        ensures begun { IfOk result (λ _. AreBegun N.start (length self.new.wires.items) self.new.wires.items
            self.new.ports.items self.new.buffers.items self.new.jobs.items) }
        ensures more { IfOk result (λ _. length self.new.wires.items ≡ length self.old.wires.items + 1) }
    {
        self.wires.push(parts.wire)?;
        self.ports.push(parts.port)?;
        self.buffers.push(parts.buffer)?;
        self.jobs.push(parts.job)?;
        Ok(())
    }
}

/// The parts of the app of this number.
fn parts_of<A: IsoApp, N: Naming + Firsts<A>>(
    alloc: Global,
    opened: OpenedApp<A>,
    number: usize,
) -> AppParts<A, N>
    requires first { slice_get N.firsts number ≡ Some opened.app }
    requires input { slice_get N.inputs number ≡ Some (table_of opened.input.exchange) }
    requires output { slice_get N.outputs number ≡ Some (table_of opened.output.exchange) }
    requires opened { IsOpened N.start number opened }
    requires below { number < app_count N.start }
    requires few { cycles_of N.start ≤ MAX_CYCLES }
    ensures wire { result.wire ≡ number }
    ensures port { result.port ≡ new_port number }
    ensures buffer { HasWidths N.start number result.buffer }
    ensures job { result.job ≡ new_job number }
{
    let OpenedApp {
        app,
        lengths,
        buffer,
        input,
        output,
    } = opened;
    let Opening {
        exchange: input,
        producer: input_giver,
        consumer: input_taker,
    } = input;
    let Opening {
        exchange: output,
        producer: output_giver,
        consumer: output_taker,
    } = output;
    AppParts {
        wire: Wire::new(number, input, output),
        port: Port::new(number, output_taker, input_giver),
        buffer,
        job: Job::new(alloc, number, app, lengths, input_taker, output_giver),
    }
}
