// What always holds of the meshes that the contracts cite.
ghost use Rattle.tetra_mesh.specs.CellLaws.{CellsMakeMeshes, MixedCellsAreCells};
ghost use Rattle.tetra_mesh.specs.SoundLaws.{GridMeshesAreSound, GridMeshesLieApart};

/// The mesh of each grid whose outermost layer is outside is closed, a manifold and separating, and
/// no two of its vertices have one place on the lattice of 65536 steps a cell. Over a view of which a
/// mesh may be made no two have one raw place or one line.
pub fn meshes_are_sound()
    ensures sound { GridMeshesAreSound }
    ensures apart { GridMeshesLieApart }
{}

/// The mesh of each grid whose outermost layer is outside has the vertices and the faces of the
/// grid's mixed cells, cell by cell, and each edge of their triangles starts at one of them.
pub fn cells_make_meshes()
    ensures meshes { CellsMakeMeshes }
    ensures cells { MixedCellsAreCells }
{}
