// What desk asks of the system, as one bound.
use pages::Complaints;
use std::rt::{Env, Files};

pub trait System: Print + Input + Env + Files + Complaints {}

impl System for HostRuntime {}
