//! The texts of a generated script that no number changes.

/// Up to the seeds of the makers: the three behaviours, and a friend on each node.
pub const HEAD: &str =
    "{\"behaviours\":[{\"message\":[[\"spawn\",\"y\",\"cell\"],[\"send\",\"m0\",\"y\"],[\"send\",\"y\",\
     \"m0\"],[\"drop\",\"y\"]],\"name\":\"friend\"},{\"name\":\"maker\",\"wake\":[[\"spawn\",\"x\",\"cell\"],\
     [\"send\",\"b\",\"x\"],[\"drop\",\"x\"]]},{\"message\":[[\"keep\",\"k\",\"m0\"]],\"name\":\"cell\"}],\
     \"nodes\":4,\"seeds\":[{\"behaviour\":\"friend\",\"node\":0,\"wakes\":0},{\"behaviour\":\"friend\",\
     \"node\":1,\"wakes\":0},{\"behaviour\":\"friend\",\"node\":2,\"wakes\":0},{\"behaviour\":\"friend\",\
     \"node\":3,\"wakes\":0}";

/// Between the seeds and the ties.
pub const MIDDLE: &str = "],\"ties\":[";

/// After the ties.
pub const TAIL: &str = "],\"turns\":1000000}\n";

/// Around the node and the wakes of a maker.
pub const SEED_NODE: &str = ",{\"behaviour\":\"maker\",\"node\":";

pub const SEED_WAKES: &str = ",\"wakes\":";

/// Around the two seeds of a tie.
pub const TIE_FROM: &str = "{\"as\":\"b\",\"from\":";

pub const TIE_TO: &str = ",\"to\":";
