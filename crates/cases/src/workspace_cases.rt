// The lists of the programs can be had, and have their places.
use crate::helpers::check_eq;
use base::Sector;
use std::test::Fail;
use workspace::Workspace;

#[test]
fn workspaces_have_their_places(rt: HostRuntime) -> Result<(), Fail> {
    let mut workspace: Workspace<Sector> = Workspace::new(rt.alloc())?;
    let lists = workspace.lists();
    check_eq((lists.slots.len(), lists.next.len()), (8192, 4096))?;
    check_eq((lists.held.len(), lists.serving.len()), (64, 4096))
}
