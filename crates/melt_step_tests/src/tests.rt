mod faults;
mod given;
mod growing;
mod moved;
mod order;
mod room;
mod safepoint;
