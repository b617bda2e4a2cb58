//! What is outside may go to other threads and be read there, as these calls can be made for those types alone.

use crate::{
    Addr, Failed, Line, LineBuf, LineError, List, MemSink, MemSource, Moment, OutOfMemory, Status,
    StdSink, StdSource, SureSink, SureSource,
};

fn crosses<T: Send + Sync>() {}

fn types_cross<T: Send + Sync>() {
    crosses::<List<T>>();
    crosses::<Moment>();
    crosses::<Addr>();
    crosses::<Status>();
    crosses::<Line>();
    crosses::<LineBuf>();
    crosses::<LineError>();
    crosses::<OutOfMemory>();
    crosses::<Failed>();
    crosses::<MemSource>();
    crosses::<MemSink>();
    crosses::<SureSource>();
    crosses::<SureSink>();
    crosses::<StdSource<T>>();
    crosses::<StdSink<T>>();
}
