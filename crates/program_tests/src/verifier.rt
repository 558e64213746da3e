//! Abstract states and annotations, which programs are accepted and why others are refused, and programs by the
//! states of some of their instructions.

mod annotations;
mod calls;
mod checks;
mod forms;
mod images;
mod kinds;
mod loads;
mod results;
mod sparse;
mod states;
