//! A history's transactions as a picture: what is drawn, and its text as SVG and for graphviz.

pub mod arrow;
pub mod bar;
mod canvas;
mod curve;
pub mod dot;
mod layout;
mod legend;
mod marks;
mod naming;
pub mod subject;
pub mod svg;
