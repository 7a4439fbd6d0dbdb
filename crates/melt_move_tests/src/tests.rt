mod collect;
mod given;
mod planned;
