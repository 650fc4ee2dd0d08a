ghost use Rattle.std.specs.Prelude.{◌≡◌, ◌<◌, ◌≤◌, length};
ghost use Rattle.zl_types.specs.Forest.{link, IsForest, IsRoot, IsSameClass, IsRelinked};

/// Links a node to what its link is linked to, and gives that.
fn halve(links: &mut Vec<usize>, node: usize) -> usize
    requires forest { IsForest links.old.items }
    requires within { node < length links.old.items }
    ensures relinked { IsRelinked links.old.items links.new.items }
    ensures same { IsSameClass links.new.items node result }
    ensures older { result ≤ link links.old.items node }
{
    let next = links[node];
    let further = links[next];
    links[node] = further;
    further
}

/// The root of a node's class.
pub(crate) fn root(links: &mut Vec<usize>, node: usize) -> usize
    requires forest { IsForest links.old.items }
    requires within { node < length links.old.items }
    ensures relinked { IsRelinked links.old.items links.new.items }
    ensures same { IsSameClass links.new.items node result }
    ensures root { IsRoot links.new.items result }
    ensures older { result ≤ node }
{
    let mut at = node;
    while links[at] != at {
        at = halve(links, at);
    }
    at
}
