// The names of table E.1's rows, as source document 004, table C.3, has them in English; `data/properties.csv` has the same, and the gate compares.
ghost use Rattle.saying.specs.Lines.{InRoom};

use saying::Line;

// A line for each row in their order, 1 to 132 and 141 to 152, in UTF-8.
const NAMES: [u8; 7577] = *b"Vehicle has 1st class seats
Vehicle has 2nd class seats
Vehicle has seats for smokers
Vehicle has seats for non-smokers
Vehicle has equipment for disabled people
Vehicle has a compartment for mother and child
Vehicle has a conference compartment
Vehicle has a guard's compartment
Vehicle is restaurant car or has seats for meals
Vehicle has a support point for a minibar
Vehicle has a support point for catering
Vehicle is a couchette coach or has couchette places
Vehicle is a sleeping car
Vehicle is a special coach (e.g. company coach)
Vehicle is a baggage van or has space for carrying baggage
Vehicle is a postal vehicle or has space for carrying mail
Vehicle has sealed toilets
Vehicle has a telephone for passenger use
Vehicle is pressure tight
Vehicle is a freight wagon
Vehicle has side sensitive door locking over the train bus
Vehicle has side sensitive door not locking over the train bus
Vehicle supports \"door close\"
Vehicle supports door close monitoring
Vehicle has moveable footsteps
Vehicle supports release of the footsteps
Vehicle supports locking of the doors of sleeping cars
Vehicle supports common operation of the corridor connection doors to the neighbouring vehicle
Vehicle supports prevent/allow WC use
Vehicle supports lighting control over train bus
Vehicle supports internal loudspeaker (choice receipt)
Vehicle supports internal loudspeaker (obligation receipt)
Vehicle supports speech connection with leading vehicle
Vehicle supports speech connection between leading vehicle and trailing tractive unit
Vehicle has external loudspeaker
Vehicle supports external loudspeaker control
Vehicle supports public address in individual vehicles/vehicle groups
Tractive unit with electric drive
Tractive unit with diesel engine drive
Vehicle has \xE2\x89\xA4 2 pantographs
Vehicle has > 2 pantographs independent of each other
Vehicle has a cab for one direction of travel
Vehicle has two cabs for both directions of travel
Vehicle can remotely control the drive of other (electric) tractive units with control system 1e over the train bus
Vehicle can remotely control the drive of other (diesel) tractive units with control system 1d over the train bus
Vehicle can remotely control the drive of other (electric) tractive units with control system 2e over the train bus
Vehicle can remotely control the drive of other (diesel) tractive units with control system 2d over the train bus
Vehicle can remotely control the drive of other tractive units with control system 3 over the train bus
Drive of the electric tractive unit with control system 1e can be remote-controlled over the train bus
Drive of the diesel tractive unit can be remote-controlled with control system 1d over the train bus
Drive of the electric tractive unit can be remote-controlled with control system 2e over the train bus
Drive of the diesel tractive unit can be remote-controlled with control system 2d over the train bus
Drive of the tractive unit can be remote-controlled with control system 3 over the train bus
Vehicle can remotely control the drive of other (tractive) vehicles but not over the train bus
Drive of the (tractive) vehicle can be remote-controlled but not over the train bus
Vehicle has a speed controller for traction
Vehicle has a train line
Vehicle can globally remotely control the train line over the train bus
Vehicle can remotely control the train line over the train bus, selectively
Vehicle can be remote-controlled by the train line over the train bus, selectively
Vehicle supports report \"train line in\"
Vehicle supports report \"train line earthed\"
Vehicle supports report \"train line externally supplied\"
Vehicle supports remote control of fan over the train bus
Vehicle supports compressor remote control over the train bus
Vehicle supports input of target speed
Vehicle supports fault reset
Vehicle supports \"establish traction readiness\"
Vehicle supports \"sand\"!
Vehicle supports \"drive or prepare to drive...!\"
Vehicle supports \"drive through tunnel\"
Vehicle supports over high current limitation
Vehicle supports \"drive through a neutral section\"
Vehicle supports start train power supply or switch on/switch off or cut out
Vehicle supports preheat coolant
Vehicle supports transmission gear change
Vehicle supports fast brake command
Vehicle supports control of the Mg-brake
Vehicle supports release of the WB-brake
Vehicle supports control of the WB-brake
Vehicle supports tilting technology
Vehicle supports report of high current
Vehicle supports report of the overhead line voltage
Vehicle supports report of the train power supply
Vehicle supports report of preheating operating
Vehicle supports report of transmission gear change
Vehicle supports report of diesel engine speed
Vehicle supports auxillary control of compressor
Vehicle supports report of max. possible tractive effort value
Vehicle supports report of max. possible brake force value
Vehicle supports report of actual traction value
Vehicle supports ep-brake over the train bus with control system1
Vehicle supports ep-brake over the train bus with control system 2
Vehicle has ep-brakes but they are not controlled over the train bus
Vehicle supports emergency brake shorting over the train bus
Vehicle has emergency brake shorting but not over the train bus
Vehicle has magnetic rail brakes
Vehicle supports magnetic rail brakes over the train bus
Vehicle has motor brakes
Vehicle supports motor brakes over the train bus
Vehicle has eddy current brakes
Vehicle supports eddy current brakes over the train bus
Vehicle supports automatic brake test
Tractive unit reports: motor brake is in service
Vehicle supports completeness of the train
Vehicle supports tail light operation
Vehicle supports tail light monitoring
Vehicle has an automatic coupling on vehicle No. 1 end
Vehicle has an automatic coupling on vehicle No. 2 end
Vehicle supports check of automatic coupling engagement
Vehicle supports control of air conditioning system(s)
Vehicle supports diagnostics: flashing defect indicator light and acknowledgement
Vehicle supports diagnostics: transmission of diagnostic results
Vehicle supports diagnostics: all fault reports to the leading vehicle
Vehicle supports diagnostics: individual fault reports to the leading vehicle
Vehicle supports diagnostics: sum of fault reports
Vehicle supports electronic train running indicator
Vehicle supports electronic seat reservation
Vehicle supports \"next station\"
Vehicle supports \"train connection at next station\"
Vehicle supports transmission of advertising
Vehicle supports train crew call
Vehicle supports \"stop requested\"
Vehicle supports data refreshing in ticket canceller
Vehicle supports FIS-exchange
Vehicle supports \"energy saving\" (generic order)
Vehicle supports \"energy saving\" (vehicle selective)
Vehicle supports \"data channel\"
Vehicle supports group addressing
Vehicle supports report of actual speed value
Vehicle supports report date and time
Vehicle has radio clock
Vehicle has a train bus node
Vehicle supports warm chain
Vehicle supports \"run through washer\"
Vehicle can remotely control the drive of other tractive units with control system 4 over the train bus.
Drive of the tractive vehicle with control system type 4 can be remotely controlled over the train bus
Vehicle supports report of traction resources
Vehicle supports report of additional informations
Vehicle supports parking mode
Vehicle supports diagnostics: report of detailed faults to the leading vehicle
Vehicle supports diagnostics: fault correction procedure
Vehicle supports diagnostics: tests
Vehicle supports safe data transmission
";

// Line k, counted from 0; empty where there are fewer.
fn line_of(text: &[u8], k: usize) -> &[u8] {
    text.split(|&x| x == b'\n').nth(k).unwrap_or(b"")
}

// Rows 133 to 140 have no bit, and no name here.
fn place_of(row: u32) -> usize {
    (row as usize).wrapping_sub(if row <= 132 { 1 } else { 9 })
}

// The name of a row of the table.
pub fn say_name(line: Line, row: u32) -> Line
    ensures { InRoom line.at result.at }
{
    saying::say(line, line_of(&NAMES, place_of(row)))
}
