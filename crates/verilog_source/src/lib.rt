//! Modules of gate-level Verilog, read token by token by their grammar.
#![tactic(auto)]

mod faults;
mod instances;
mod judge;
mod known;
mod laws;
mod plain_steps;
mod position;
mod reader;
mod steps;
mod values;

pub use faults::VerilogFault;
pub use judge::{
    is_end_kind, is_full_gate, is_module_name, judge_end, judge_name, judge_ports, judge_sign,
};
pub use known::{Gathering, Known, count_token, first_known, gather, no_names};
pub use laws::{first_refused, good_beginnings, one_source};
pub use position::{
    Actual, Assign, Direction, Gate, Header, Instance, Listing, Next, PortTie, Position, Told, Work,
};
pub use reader::{is_past_limit, learn, take_token};
pub use steps::{no_work, take_step};
