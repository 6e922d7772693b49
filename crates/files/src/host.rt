// What the functions here ask of the system that a program runs on.
use std::fs::File;
use std::process;
use std::rt::{Clock, Env, Files};

pub trait Host: Env + Files<File = File> + Clock + Alloc {
    // The number of the process.
    fn pid(&self) -> u32;
}

impl Host for HostRuntime {
    fn pid(&self) -> u32 {
        process::id(self.process())
    }
}
