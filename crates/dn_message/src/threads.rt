//! What the readers give is Send and Sync: these calls can be made for such types alone.

use crate::{FormError, FormFault, Kind, Opt, Query, Question, Rcode, ReadError, Reply, Rr};

fn crosses<T: Send + Sync>() {}

fn types_cross() {
    crosses::<FormError>();
    crosses::<FormFault>();
    crosses::<Kind>();
    crosses::<Opt>();
    crosses::<Query>();
    crosses::<Question>();
    crosses::<Rcode>();
    crosses::<ReadError>();
    crosses::<Reply>();
    crosses::<Rr>();
}
