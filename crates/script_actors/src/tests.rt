//! The actors of small scripts.
use crate::ScriptActors;
use script_reader::read_script;
use std::test::Fail;

const SCRIPT: &str = "{\"nodes\":2,\"behaviours\":[{\"name\":\"cell\"}],\
     \"seeds\":[{\"node\":0,\"behaviour\":\"cell\",\"wakes\":1},{\"node\":1,\"behaviour\":\"cell\",\"wakes\":0}],\
     \"ties\":[{\"from\":0,\"to\":1,\"as\":\"b\"}],\"turns\":1}";

#[test]
fn a_script_has_its_actors(rt: HostRuntime) -> Result<(), Fail> {
    match read_script(rt.alloc(), SCRIPT.as_bytes()) {
        Ok(script) => {
            let actors = ScriptActors::begin(rt.alloc(), &script)?;
            assert_eq!(rt; actors.nodes.len(), 2);
            Ok(())
        }
        Err(_) => Err("no script".into()),
    }
}
