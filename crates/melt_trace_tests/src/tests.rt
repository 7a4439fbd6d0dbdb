mod generated;
mod stats;
mod text;
mod trace;
