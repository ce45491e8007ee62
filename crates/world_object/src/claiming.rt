//! Claims of nodes.
ghost use Rattle.std.specs.Prelude.{◌≡◌, None};
ghost use Rattle.operation_model.specs.declared.operations.Op.TheVariants as ops;
ghost use Rattle.operation_model.specs.declared.replies.Reply.TheVariants as replies;
ghost use Rattle.world_object.specs.Answering.{IsClaimed, refused_by};
ghost use Rattle.world_object.specs.Standing.{Stands};

use crate::parts::ClusterParts;
use crgc_ids::NodeId;
use operation_model::Reply;

impl ClusterParts {
    /// The node is the pass's from now on.
    pub(crate) fn claim(&mut self, node: NodeId, pass: u32) -> Reply
        requires stands { Stands self.old }
        requires may { refused_by self.old (ops.Claim node) ≡ None }
        ensures stands { Stands self.new }
        ensures reply { result ≡ replies.Done }
        ensures others { self.new ≡ record self.old { claims = self.new.claims } }
        ensures claims { IsClaimed node pass self.old.claims self.new.claims }
    {
        self.claims[node.get() as usize] = Some(pass);
        Reply::Done
    }
}
