// What instructions do, a group of opcodes in each file.

pub(crate) mod arithmetic;
pub(crate) mod arrays;
pub(crate) mod assignment;
pub(crate) mod comparison;
pub(crate) mod control;
pub(crate) mod effects;
pub(crate) mod idle;
pub(crate) mod objects;
pub(crate) mod printing;
pub mod quiet;
pub(crate) mod routines;
pub(crate) mod saving;
pub(crate) mod screens;
pub(crate) mod selecting;
pub(crate) mod tables;
pub(crate) mod words;
