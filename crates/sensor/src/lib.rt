//! One Security Sensor (TCG Storage, Locking: 4.3.2): what each event and each tick makes of it. Its Set is in crate `sensor_set`.
#![tactic(auto)]

mod single;

pub use single::Sensor;
