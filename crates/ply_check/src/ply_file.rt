// What a file says.

/// A mesh of triangles as a file says it.
#[derive(Debug, Drop)]
pub struct PlyFile {
    /// How many vertices there are. They are numbered from 0.
    pub count: u32,
    /// The faces, each as the numbers of its three vertices, which are below the count.
    pub faces: Vec<[u32; 3]>,
}
