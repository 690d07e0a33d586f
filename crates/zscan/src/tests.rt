//! Runs of the program over sources, sinks and images in memory, which may fail or lie. Runs of
//! scripts over images that do neither stand in `outside/rows`.

mod devices;
mod failures;
mod repairs;
mod rows;
mod world;
