mod alive;
mod ghosts;
mod plain;
