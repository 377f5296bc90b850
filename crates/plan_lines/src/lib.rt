// Lines that show a plan: its rows, with where each leads.
#![tactic(auto)]

pub mod plans; // a plan's row
