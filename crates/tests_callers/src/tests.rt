//! Callers that are proved.

// Callers of laws, and with contracts of their own.
mod chained;
mod dyld;
mod image;
mod looked_up;
mod parts;

// Generic readers and writers, at types of their own.
mod readers;

// A call of each public function that has no other caller.
mod happy;

// Assertions.
mod same;
