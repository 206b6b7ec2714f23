//! The analysis of programs, plans, and models of ground programs.
mod analyses;
mod kept_maps;
mod models;
mod plans;
