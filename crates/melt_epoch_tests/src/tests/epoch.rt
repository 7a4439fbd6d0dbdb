mod given;
mod threads;
mod turns;
