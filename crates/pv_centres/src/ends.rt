ghost use Rattle.std.specs.Prelude.{◌≡◌, ◌||◌, not, ◌⊎◌, true, false, None, Some, All};
ghost use Rattle.pv_centres.specs.Carried.{AreQuiet};
ghost use Rattle.pv_centres.specs.Ends.{HaveBeenAdded, SomeDoorEnd, first_failure, is_door_end, disk_end, carrier_end, rest_end, is_room_end};

use pv_closing::RestEnd;
use pv_outside::Disk;
use pv_service::{CarrierFault, CarrierReport, PortFault, PortReport};

/// What the work of a server's threads met, all together.
#[derive(Drop)]
pub struct Ends<D: Disk> {
    /// Whether a call, a session or a round ended since no memory was found.
    pub memory: bool,
    /// Whether a door failed.
    pub door: bool,
    /// The first failure of a disk, if one failed.
    pub disk: Option<D::Failure>,
    /// Whether a node was not brought all that it lacked, since it was full or a record had no room.
    pub no_room: bool,
}

impl<D: Disk> Ends<D> {
    /// Nothing was met.
    fn new() -> Ends<D>
        ensures { (result.memory ≡ false) × (result.door ≡ false) × (result.disk ≡ None)
            × (result.no_room ≡ false) }
    {
        Ends {
            memory: false,
            door: false,
            disk: None,
            no_room: false,
        }
    }

    /// What these ports and carriers have met.
    pub fn of(
        callers: Vec<PortReport<D>>,
        editors: Vec<PortReport<D>>,
        carriers: Vec<CarrierReport<D>>,
    ) -> Ends<D>
        ensures quiet { result.door ≡ false → result.disk ≡ None
            → All (λ report. report.fault ≡ None) callers.items
            × All (λ report. report.fault ≡ None) editors.items }
        ensures door { result.door ≡ true → SomeDoorEnd callers.items ⊎ SomeDoorEnd editors.items }
        ensures carriers { result.memory ≡ false → result.disk ≡ None → AreQuiet carriers.items }
        ensures no_room { result.no_room ≡ false }
    {
        let mut ends = Ends::new();
        ends.add_ports(callers);
        ends.add_ports(editors);
        ends.add_carriers(carriers);
        ends
    }

    /// Adds what ports have met.
    fn add_ports(&mut self, reports: Vec<PortReport<D>>)
        ensures added { HaveBeenAdded reports.items self.old self.new }
        ensures no_room { self.new.no_room ≡ self.old.no_room }
    {
        for report in reports {
            self.add_port(report);
        }
    }

    /// Adds what carriers have met.
    fn add_carriers(&mut self, reports: Vec<CarrierReport<D>>)
        ensures door { self.new.door ≡ self.old.door }
        ensures disk { self.new.disk ≡ None → self.old.disk ≡ None }
        ensures quiet { self.new.memory ≡ false → self.new.disk ≡ None → AreQuiet reports.items }
        ensures no_room { self.new.no_room ≡ self.old.no_room }
    {
        for report in reports {
            self.add_carrier(report);
        }
    }

    /// Adds what a port has met.
    fn add_port(&mut self, report: PortReport<D>)
        ensures memory { self.new.memory ≡ (self.old.memory || report.memory) }
        ensures door { self.new.door ≡ (self.old.door || is_door_end report.fault) }
        ensures disk { self.new.disk ≡ first_failure self.old.disk (disk_end report.fault) }
        ensures no_room { self.new.no_room ≡ self.old.no_room }
    {
        if report.memory {
            self.memory = true;
        }
        match report.fault {
            Some(PortFault::Door) => self.door = true,
            Some(PortFault::Disk(failure)) => self.add_failure(failure),
            None => {}
        }
    }

    /// Adds what a carrier has met. Its links are those of a server, of which no call fails.
    fn add_carrier(&mut self, report: CarrierReport<D>)
        ensures memory { self.new.memory ≡ (self.old.memory || report.memory) }
        ensures door { self.new.door ≡ self.old.door }
        ensures disk { self.new.disk ≡ first_failure self.old.disk (carrier_end report.fault) }
        ensures no_room { self.new.no_room ≡ self.old.no_room }
    {
        if report.memory {
            self.memory = true;
        }
        if let Some(CarrierFault::Disk(failure)) = report.fault {
            self.add_failure(failure);
        }
    }

    /// Adds how far a node was brought what it lacked.
    pub fn add_rest(&mut self, end: RestEnd<D>)
        ensures memory { self.new.memory ≡ self.old.memory }
        ensures door { self.new.door ≡ self.old.door }
        ensures disk { self.new.disk ≡ first_failure self.old.disk (rest_end end) }
        ensures kept { self.new.disk ≡ None → self.old.disk ≡ None }
        ensures no_room { self.new.no_room ≡ (self.old.no_room || is_room_end end) }
    {
        match end {
            RestEnd::Brought => {}
            RestEnd::Full { count: _ } => self.no_room = true,
            RestEnd::NoRoom => self.no_room = true,
            RestEnd::DiskFault(failure) => self.add_failure(failure),
        }
    }

    /// Adds that a call of a node's disk failed as it was closed. If it was not counted that what its passes have seen is
    /// stored, nothing can be said of it, as if memory had run out.
    pub fn add_left(&mut self, failure: D::Failure, seen_is_stored: bool)
        ensures memory { self.new.memory ≡ (self.old.memory || not seen_is_stored) }
        ensures door { self.new.door ≡ self.old.door }
        ensures disk { self.new.disk ≡ first_failure self.old.disk (Some failure) }
        ensures no_room { self.new.no_room ≡ self.old.no_room }
    {
        if !seen_is_stored {
            self.memory = true;
        }
        self.add_failure(failure);
    }

    /// Adds a disk's failure. The first one stays.
    fn add_failure(&mut self, failure: D::Failure)
        ensures { self.new ≡ record self.old { disk = first_failure self.old.disk (Some failure) } }
    {
        if self.disk.is_none() {
            self.disk = Some(failure);
        }
    }
}
