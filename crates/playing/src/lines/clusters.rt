//! The clusters of a line.
use crate::lines::pens::push_pen;
use crate::turn::Turn;
use termwiz_cell::emoji::UnicodeWidths;
use termwiz_line::cellcluster::CellCluster;
use termwiz_line::line::line::Line;

/// Answers one of these of each of the line's clusters.
///
/// - `clusters`: its text after its column and its width, as `0:2か|2:1a|`; `cell-clusters`: this of
///   the clusters that are made of the visible cells; `recorded`: this in the form of recorded
///   answers.
/// - `bytes`: the column and the width of each byte's cell, as `0:2|0:2|0:2|2:1|`, of the first
///   cluster alone.
/// - `looks`: its pen, how it is shown and where to.
/// - `cluster-copies`: whether its copy has the same cells of its bytes.
pub fn push_clusters(form: &str, line: &Line, turn: &mut Turn<'_>) {
    let made = match form {
        "cell-clusters" => {
            CellCluster::make_cluster(turn.alloc, &UnicodeWidths, line.visible_cells())
        }
        _ => line.cluster(&UnicodeWidths),
    };
    if let Some(clusters) = turn.kept(made) {
        for cluster in &clusters {
            push_cluster(form, cluster, turn);
        }
    }
}

fn push_cluster(form: &str, cluster: &CellCluster, turn: &mut Turn<'_>) {
    let (column, width, text) = (cluster.first_cell_idx, cluster.width, cluster.text.as_str());
    match form {
        "recorded" => {
            write!(turn, " {column}:");
            turn.push_escaped(text);
            write!(turn, "/{width}");
        }
        "bytes" if column == 0 => {
            for byte in 0..text.len() {
                let column = cluster.byte_to_cell_idx(byte);
                let width = cluster.byte_to_cell_width(byte);
                write!(turn, "{column}:{width}|");
            }
        }
        "bytes" => {}
        "looks" => {
            turn.push_str("pen ");
            push_pen(&cluster.attrs, turn);
            write!(
                turn,
                ", {:?}, {:?}|",
                cluster.presentation, cluster.direction
            );
        }
        "cluster-copies" => push_copied(cluster, turn),
        _ => write!(turn, "{column}:{width}{text}|"),
    }
}

// Whether a copy has the same cells of its bytes.
fn push_copied(cluster: &CellCluster, turn: &mut Turn<'_>) {
    let Some(copy) = turn.kept(cluster.clone()) else {
        return;
    };
    let (count, copied) = (cluster.text.len(), copy.text.len());
    let mut same = count == copied;
    for byte in 0..count {
        if byte < copied {
            let same_cell = copy.byte_to_cell_idx(byte) == cluster.byte_to_cell_idx(byte);
            let same_width = copy.byte_to_cell_width(byte) == cluster.byte_to_cell_width(byte);
            same = same && same_cell && same_width;
        }
    }
    write!(turn, "{same}|");
}
