//! What the commands share that run an asking end over the link to another node.

pub(crate) mod ending;
pub(crate) mod opening;
