mod beside;
mod hand;
mod pairs;
mod ranges;
mod refused;
mod spare;
mod two_places;
