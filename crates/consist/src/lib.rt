// Addresses resolved over the vehicle entries themselves: each entry's marks become one octet, and `train` answers over the octets.
#![tactic(auto)]

ghost use Rattle.std.specs.Prelude.{◌≡◌, map};
ghost use Rattle.paper.specs.Train.{resolving};
ghost use Rattle.train.specs.Marks.{resolved_answer};
ghost use Rattle.consist.specs.Vehicles.{vehicle_as};

use refusals::Refusal;
use train::Members;
pub use train::Vehicle;

// The vehicles of the train that meet the address, as `train::resolve` answers; a train of more than 63 has no octets for all, and is refused.
pub fn resolve_train(vehicles: &[Vehicle], address: u64) -> Result<Members, Refusal>
    ensures { resolved_answer result ≡ resolving (map vehicle_as vehicles.now) address }
{
    if 63 < vehicles.len() {
        return Err(Refusal::ConsistLength);
    }
    let mut octets = [0; 63];
    for (i, vehicle) in vehicles.iter().enumerate() {
        octets[i] = vehicle.octet();
    }
    train::resolve(&octets[..vehicles.len()], address)
}
