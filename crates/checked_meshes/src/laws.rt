// What always holds of the texts of meshes. The functions compute nothing: what they ensure is the law.
ghost use Rattle.checked_meshes.specs.Laws.{WrittenMeshesAreRead};
ghost use Rattle.checked_meshes.specs.ModelTexts.{MeshTextsCheck};

/// The text of each mesh is read as its number of vertices and its very faces, as no other mesh, and
/// it is refused on no line. So what `read_ply` gives of it is that mesh, or want of memory.
pub fn written_meshes_are_read()
    ensures { WrittenMeshesAreRead }
{}

/// The text of the mesh of each model, over each view of which a mesh may be made, is read as faces on
/// which the verdict is Closed.
pub fn mesh_texts_check()
    ensures { MeshTextsCheck }
{}
