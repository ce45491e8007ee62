//! The worked texts.
use crate::generate;
use std::test::Fail;

const SIZE_1: &str =
    "{\"behaviours\":[{\"message\":[[\"spawn\",\"y\",\"cell\"],[\"send\",\"m0\",\"y\"],[\"send\",\"y\",\
     \"m0\"],[\"drop\",\"y\"]],\"name\":\"friend\"},{\"name\":\"maker\",\"wake\":[[\"spawn\",\"x\",\"cell\"],\
     [\"send\",\"b\",\"x\"],[\"drop\",\"x\"]]},{\"message\":[[\"keep\",\"k\",\"m0\"]],\"name\":\"cell\"}],\
     \"nodes\":4,\"seeds\":[{\"behaviour\":\"friend\",\"node\":0,\"wakes\":0},{\"behaviour\":\"friend\",\
     \"node\":1,\"wakes\":0},{\"behaviour\":\"friend\",\"node\":2,\"wakes\":0},{\"behaviour\":\"friend\",\
     \"node\":3,\"wakes\":0},{\"behaviour\":\"maker\",\"node\":2,\"wakes\":1},{\"behaviour\":\"maker\",\
     \"node\":3,\"wakes\":0},{\"behaviour\":\"maker\",\"node\":3,\"wakes\":0},{\"behaviour\":\"maker\",\
     \"node\":2,\"wakes\":0},{\"behaviour\":\"maker\",\"node\":0,\"wakes\":0},{\"behaviour\":\"maker\",\
     \"node\":1,\"wakes\":0},{\"behaviour\":\"maker\",\"node\":1,\"wakes\":0},{\"behaviour\":\"maker\",\
     \"node\":0,\"wakes\":0},{\"behaviour\":\"maker\",\"node\":2,\"wakes\":0},{\"behaviour\":\"maker\",\
     \"node\":3,\"wakes\":0},{\"behaviour\":\"maker\",\"node\":3,\"wakes\":0},{\"behaviour\":\"maker\",\
     \"node\":2,\"wakes\":0},{\"behaviour\":\"maker\",\"node\":0,\"wakes\":0},{\"behaviour\":\"maker\",\
     \"node\":1,\"wakes\":0},{\"behaviour\":\"maker\",\"node\":1,\"wakes\":0},{\"behaviour\":\"maker\",\
     \"node\":0,\"wakes\":0}],\"ties\":[{\"as\":\"b\",\"from\":4,\"to\":3},{\"as\":\"b\",\"from\":5,\"to\":1},\
     {\"as\":\"b\",\"from\":6,\"to\":2},{\"as\":\"b\",\"from\":7,\"to\":0},{\"as\":\"b\",\"from\":8,\"to\":1},\
     {\"as\":\"b\",\"from\":9,\"to\":3},{\"as\":\"b\",\"from\":10,\"to\":0},{\"as\":\"b\",\"from\":11,\
     \"to\":2},{\"as\":\"b\",\"from\":12,\"to\":3},{\"as\":\"b\",\"from\":13,\"to\":0},{\"as\":\"b\",\
     \"from\":14,\"to\":0},{\"as\":\"b\",\"from\":15,\"to\":0},{\"as\":\"b\",\"from\":16,\"to\":2},{\"as\":\"b\",\
     \"from\":17,\"to\":3},{\"as\":\"b\",\"from\":18,\"to\":2},{\"as\":\"b\",\"from\":19,\"to\":1}],\"turns\":1000000}\n";

const SIZE_2000: &str =
    "{\"behaviours\":[{\"message\":[[\"spawn\",\"y\",\"cell\"],[\"send\",\"m0\",\"y\"],[\"send\",\"y\",\
     \"m0\"],[\"drop\",\"y\"]],\"name\":\"friend\"},{\"name\":\"maker\",\"wake\":[[\"spawn\",\"x\",\"cell\"],\
     [\"send\",\"b\",\"x\"],[\"drop\",\"x\"]]},{\"message\":[[\"keep\",\"k\",\"m0\"]],\"name\":\"cell\"}],\
     \"nodes\":4,\"seeds\":[{\"behaviour\":\"friend\",\"node\":0,\"wakes\":0},{\"behaviour\":\"friend\",\
     \"node\":1,\"wakes\":0},{\"behaviour\":\"friend\",\"node\":2,\"wakes\":0},{\"behaviour\":\"friend\",\
     \"node\":3,\"wakes\":0},{\"behaviour\":\"maker\",\"node\":2,\"wakes\":125},{\"behaviour\":\"maker\",\
     \"node\":3,\"wakes\":125},{\"behaviour\":\"maker\",\"node\":3,\"wakes\":125},{\"behaviour\":\"maker\",\
     \"node\":2,\"wakes\":125},{\"behaviour\":\"maker\",\"node\":0,\"wakes\":125},{\"behaviour\":\"maker\",\
     \"node\":1,\"wakes\":125},{\"behaviour\":\"maker\",\"node\":1,\"wakes\":125},{\"behaviour\":\"maker\",\
     \"node\":0,\"wakes\":125},{\"behaviour\":\"maker\",\"node\":2,\"wakes\":125},{\"behaviour\":\"maker\",\
     \"node\":3,\"wakes\":125},{\"behaviour\":\"maker\",\"node\":3,\"wakes\":125},{\"behaviour\":\"maker\",\
     \"node\":2,\"wakes\":125},{\"behaviour\":\"maker\",\"node\":0,\"wakes\":125},{\"behaviour\":\"maker\",\
     \"node\":1,\"wakes\":125},{\"behaviour\":\"maker\",\"node\":1,\"wakes\":125},{\"behaviour\":\"maker\",\
     \"node\":0,\"wakes\":125}],\"ties\":[{\"as\":\"b\",\"from\":4,\"to\":3},{\"as\":\"b\",\"from\":5,\
     \"to\":1},{\"as\":\"b\",\"from\":6,\"to\":2},{\"as\":\"b\",\"from\":7,\"to\":0},{\"as\":\"b\",\"from\":8,\
     \"to\":1},{\"as\":\"b\",\"from\":9,\"to\":3},{\"as\":\"b\",\"from\":10,\"to\":0},{\"as\":\"b\",\"from\":11,\
     \"to\":2},{\"as\":\"b\",\"from\":12,\"to\":3},{\"as\":\"b\",\"from\":13,\"to\":0},{\"as\":\"b\",\
     \"from\":14,\"to\":0},{\"as\":\"b\",\"from\":15,\"to\":0},{\"as\":\"b\",\"from\":16,\"to\":2},{\"as\":\"b\",\
     \"from\":17,\"to\":3},{\"as\":\"b\",\"from\":18,\"to\":2},{\"as\":\"b\",\"from\":19,\"to\":1}],\"turns\":1000000}\n";

#[test]
fn the_worked_texts_are_written(rt: HostRuntime) -> Result<(), Fail> {
    let text = generate(rt.alloc(), 7, 1)?;
    assert_eq!(rt; text.as_slice(), SIZE_1.as_bytes());
    let text = generate(rt.alloc(), 7, 2000)?;
    assert_eq!(rt; text.as_slice(), SIZE_2000.as_bytes());
    Ok(())
}
