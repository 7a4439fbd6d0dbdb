mod disk;
mod forward;
mod links;
mod policy;
mod record;
mod scion;
mod space;
mod word;
